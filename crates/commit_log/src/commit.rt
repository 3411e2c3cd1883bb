use values::List;
use vra_syntax::Write;

/// Writes that take effect together: the number of commits that their transaction had seen, the loop that placed them,
/// the number among that loop's commits, and the writes.
#[derive(Drop)]
pub struct Commit {
    pub base: u64,
    pub loop_no: u32,
    pub sequence: u64,
    pub writes: List<Write>,
}
