ghost use Rattle.std.specs.Prelude.{◌≤◌, length};

// The tables of a program while they are filled: a word for each word of the rows, in lent memory, since there is no
// heap. Three tables of words and no rows of structs: the memory is lent as words, and a step of a run reads one or two
// of them, by the place at hand.
#[derive(Drop)]
pub(crate) struct Linker<'a> {
    pub rows: &'a [u32],
    pub follow: &'a mut [u32],
    pub inner: &'a mut [u32],
    pub other: &'a mut [u32],
    pub procs: &'a mut [u32],
    ghost short: { length rows.now ≤ 16384 },
    ghost follow_room: { length rows.now ≤ length follow.now },
    ghost inner_room: { length rows.now ≤ length inner.now },
    ghost other_room: { length rows.now ≤ length other.now },
    ghost procs_room: { 512 ≤ length procs.now },
}
