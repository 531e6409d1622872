// Classes of the states of a machine.
use machine::Machine;

// The class of each state is known by a state in it. A place for each of at most sixteen states: the libraries take no heap.
#[derive(Clone, Copy)]
pub(crate) struct Classes<'a> {
    pub(crate) machine: Machine<'a>,
    pub(crate) of: [usize; 16],
}
