// The cover of a minimal machine.
ghost use Rattle.std.specs.Prelude.{◌≡◌};
ghost use Rattle.machine.specs.Run.{model, keys_of};
ghost use Rattle.cover.specs.Cover.{access_words, separating_words, Reaches, Separates};
ghost use Rattle.cover.specs.Covered.{access_of, separating_of};
ghost use Rattle.cover.specs.Promises.{AccessFirst, TellingFirst, AllTelling, EachOnce, FewerKeys};

use crate::collecting::separating;
use crate::cover::Cover;
use crate::reaching::access;
use machine::FixedList;
use minimal::MinimalMachine;

impl Cover {
    // For each state the first word that reaches it, and for any two states the first word that tells them apart, each word once.
    pub fn of(m: MinimalMachine) -> Cover
        ensures access { access_of result ≡ access_words (keys_of m.entry.machine) (model m.entry.machine) }
        ensures separating { separating_of result ≡ separating_words (keys_of m.entry.machine) (model m.entry.machine) }
        ensures reaches { Reaches (keys_of m.entry.machine) (model m.entry.machine) (access_of result) }
        ensures separates { Separates (model m.entry.machine) (separating_of result) }
        ensures reaching { AccessFirst (keys_of m.entry.machine) (model m.entry.machine) (access_of result) }
        ensures telling { TellingFirst (keys_of m.entry.machine) (model m.entry.machine) (separating_of result) }
        ensures needed { AllTelling (keys_of m.entry.machine) (model m.entry.machine) (separating_of result) }
        ensures once { EachOnce (separating_of result) }
        ensures short { FewerKeys (model m.entry.machine) (access_of result) × FewerKeys (model m.entry.machine) (separating_of result) }
    {
        let mut cover = Cover {
            access: access(m),
            separating: FixedList::new(),
        };
        separating(m, &mut cover.separating);
        cover
    }
}
