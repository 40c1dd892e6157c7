//! The types that all crates of Bernoulli share: values modulo 2^64, lists, matrices, jobs, letters, rules and limits.
//!
//! Ranks, rows, columns and loop values count from 0. Only readers, printed texts and line numbers count from 1.
#![tactic(auto)]

mod affine;
mod axes;
mod items;
mod job;
mod laws;
mod letter;
mod limits;
mod matrix;
mod memory;
mod raw;
mod refusal;
mod shape;
mod stats;
mod steps;
mod text;
mod val;

pub use affine::{Affine, Point};
pub use axes::Axis;
pub use items::Items;
pub use job::{
    ArrayDecl, Checked, Expr, ExtentDecl, Factor, FormatDecl, Guard, Nest, PlaceDecl, PlaceKind,
    Product, Ref, Span,
};
pub use laws::values_are_a_ring;
pub use letter::{Letter, NeedSet, Needs};
pub use limits::{
    EXPRESSION_LEVELS, MOST_ARRAYS, MOST_BOUND, MOST_COEFFICIENT, MOST_CONSTANT, MOST_ENTRIES,
    MOST_EXTENTS, MOST_FILE_BYTES, MOST_FORMATS, MOST_GUARDS, MOST_ITEMS, MOST_JOB_BYTES,
    MOST_NESTS, MOST_OFFSET, MOST_OFFSETS, MOST_PIECE, MOST_PLACES, MOST_RANKS, MOST_REFERENCES,
    MOST_SIDE, MOST_SUM_NUMBER, MOST_TERMS, MOST_VARIABLES, MOST_WEIGHT,
};
pub use matrix::{Entry, Matrix, is_matrix};
pub use memory::NoMemory;
pub use raw::{
    Form, JobLine, JobText, RawExpr, RawFactor, RawGuard, RawItem, RawKind, RawNest, RawProduct,
    RawRef, RawShape, RawSum, RawVar, Rel,
};
pub use refusal::{Refusal, Rule};
pub use shape::Shape;
pub use stats::{LevelStat, Stats};
pub use steps::Steps;
pub use text::Text;
pub use val::Val;
