// What the next move of a cross is decided by: it is only read. Clauses name the three parts: a model
// that held them would be a second name for each, and no plainer.

use crate::frame::Frame;
use crate::table::Table;

#[derive(Drop)]
pub(crate) struct Situation<'a, R> {
    pub(crate) table: &'a Table,
    pub(crate) ranking: &'a R,
    pub(crate) frame: Frame,
}
