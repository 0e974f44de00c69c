// What the linker makes of a program: where a run goes on after the statement at a place, where its parts are entered,
// and of each procedure so many words.
#[derive(Clone, Copy)]
pub struct Tables<'a> {
    pub follow: &'a [u32],
    pub inner: &'a [u32],
    pub other: &'a [u32],
    pub procs: &'a [u32],
}
