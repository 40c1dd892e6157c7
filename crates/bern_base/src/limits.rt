//! The limits of jobs, files and runs, each with the rule that refuses what is past it.

/// Bytes of a job: J1.
pub const MOST_JOB_BYTES: usize = 1_048_576;

/// Bytes of a matrix file: M12.
pub const MOST_FILE_BYTES: usize = 67_108_864;

/// Bytes of one read of a file and of one write of a text.
pub const MOST_PIECE: usize = 65_536;

/// Rows or columns of a matrix file: M4. The size of an extent, and the block of a cyclic place: J15.
pub const MOST_SIDE: u32 = 4_194_304;

/// Entries that a matrix file states, or elements of an array file: M4.
pub const MOST_ENTRIES: u32 = 16_777_216;

/// What all arrays of a job may weigh together: F7.
pub const MOST_WEIGHT: u64 = 16_777_216;

/// Extents of a job: J15.
pub const MOST_EXTENTS: usize = 32;

/// Formats of a job: J15.
pub const MOST_FORMATS: usize = 32;

/// Places of a job: J15.
pub const MOST_PLACES: usize = 16;

/// Arrays of a job: J15.
pub const MOST_ARRAYS: usize = 16;

/// Nests of a job: J15.
pub const MOST_NESTS: usize = 32;

/// Loop variables of a nest: J15.
pub const MOST_VARIABLES: usize = 4;

/// Guards of a nest: J15.
pub const MOST_GUARDS: usize = 8;

/// Terms of a nest, when its products are multiplied out: J15.
pub const MOST_TERMS: usize = 16;

/// References of a term: J15.
pub const MOST_REFERENCES: usize = 4;

/// Offsets of a diagonal format: J15.
pub const MOST_OFFSETS: usize = 16;

/// An offset of a diagonal format, in size: J15.
pub const MOST_OFFSET: u32 = 4_194_303;

/// A bound of a loop, in size: J15.
pub const MOST_BOUND: u32 = 4_194_304;

/// A coefficient of a subscript or of one side of a guard, in size: J15.
pub const MOST_COEFFICIENT: u32 = 1_048_576;

/// The constant of a subscript or of one side of a guard, in size: J15.
pub const MOST_CONSTANT: u32 = 2_147_483_648;

/// Items of a sum in a job's text: J2.
pub const MOST_ITEMS: usize = 8;

/// A number in a sum of a job's text: J2.
pub const MOST_SUM_NUMBER: u32 = 4_294_967_295;

/// How deep expressions stand in one another: a whole expression, and 16 pairs of parentheses in it: J2.
pub const EXPRESSION_LEVELS: u32 = 17;

/// Ranks of a run: C3.
pub const MOST_RANKS: u32 = 64;
