// A machine where it stands, in a lent row.
ghost use Rattle.std.specs.Prelude.{◌≡◌, false, is_some};
ghost use Rattle.machine.specs.Refusals.{row_refusal};
ghost use Rattle.machine.specs.Row.{states_in, keys_in};

// It goes by value: the row that it reads, which holds a machine, its number of states and its number of keys.
#[derive(Clone, Copy)]
pub struct Machine<'a> {
    pub(crate) row: &'a [u64],
    pub(crate) states: usize,
    pub(crate) keys: usize,
    ghost first: { states ≡ states_in row.now },
    ghost second: { keys ≡ keys_in row.now },
    ghost accepted: { is_some (row_refusal row.now) ≡ false },
}
