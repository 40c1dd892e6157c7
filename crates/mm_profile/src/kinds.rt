/// Whether the entry lines name their places, or come place by place.
#[derive(Clone, Copy, Debug, PartialEq, Eq)]
pub enum Format {
    Coordinate,
    Array,
}

/// What the entry lines say of a value: an integer, or nothing, which stands for 1.
#[derive(Clone, Copy, Debug, PartialEq, Eq)]
pub enum Field {
    Integer,
    Pattern,
}

/// For which elements an entry counts: its own, or the mirrored one too, as it is or negated.
#[derive(Clone, Copy, Debug, PartialEq, Eq)]
pub enum Symmetry {
    General,
    Symmetric,
    Skew,
}

/// What line 1 says of a file.
#[derive(Clone, Copy, Debug, PartialEq, Eq)]
pub struct Kind {
    pub format: Format,
    pub field: Field,
    pub symmetry: Symmetry,
}
