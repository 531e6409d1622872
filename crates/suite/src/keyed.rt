// Words, and behind them each of them followed by each key.
ghost use Rattle.std.specs.Prelude.{◌≡◌, ◌<◌, ◌≤◌, [], length};
ghost use Rattle.std.specs.List.{AllByRecursion};
ghost use Rattle.machine.specs.Items.{items};
ghost use Rattle.cover.specs.Words.{words_of};
ghost use Rattle.suite.specs.Suite.{with_key};

use crate::factors::Fronts;
use cover::{Word, copied, followed};

// They go into a lent list, since a result of its size would be copied. Each loop has a name, which its proof is told under.
pub(crate) fn with_key(access: &[Word], keys: u64, fronts: &mut Fronts)
    requires words { (length access.now ≤ 16) × ((keys ≤ 8) × (AllByRecursion (λ w. length w < 16) (words_of access.now))) }
    requires none { items fronts.old ≡ [] }
    ensures { words_of (items fronts.new) ≡ with_key keys (words_of access.now) }
{
    'plain: for word in access {
        fronts.push(copied(word));
    }
    'keyed: for word in access {
        for key in 0..keys {
            fronts.push(followed(word, key));
        }
    }
}
