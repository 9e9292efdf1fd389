//! A book's memory is tidied.
ghost use Rattle.std.specs.Prelude.{◌≡◌};
ghost use Rattle.rules.specs.Rules.{tidy as tidied};
ghost use Rattle.orders.specs.Rows.{rows_of};
ghost use Rattle.memory.specs.States.{book_of, Tallied};

use memory::State;

/// No level without a part is kept, and no order that does not rest.
pub fn tidy(state: &mut State)
    requires { Tallied (rows_of state.old.orders) (book_of state.old) }
    ensures book { book_of state.new ≡ tidied (book_of state.old) }
    ensures tallied { Tallied (rows_of state.new.orders) (book_of state.new) }
{
    state.orders.drop_spent();
    state.sides.buys.tidy();
    state.sides.sells.tidy();
}
