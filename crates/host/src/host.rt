//! What a host owns.
use script::program::Program;
use store::tables::Tables;

/// A program, if one is loaded, and the four tables. It is the same under every order that is lent beside it.
///
/// What it keeps stands in the types of its parts: a `Program` is well-formed, and `Tables` have no gaps.
#[derive(Drop)]
pub struct Host {
    pub(crate) program: Option<Program>,
    pub(crate) tables: Tables,
}
