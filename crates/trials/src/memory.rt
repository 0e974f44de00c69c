use interpreter::Machine;

// How many cells are free, if the list of them goes up to its end.
pub fn free_cells(machine: &Machine) -> Option<usize> {
    let mut at = machine.cells.free.head;
    let mut count = 0usize;
    while at < machine.cells.free.cells {
        let next = *machine.cells.free.links.get(at as usize)?;
        if next <= at {
            return None;
        }
        at = next;
        count = count.saturating_add(1);
    }
    (at == machine.cells.free.cells).then_some(count)
}
