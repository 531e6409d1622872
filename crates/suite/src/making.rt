// What the tests for a specification are made of.
ghost use Rattle.std.specs.Prelude.{◌≡◌, ◌≤◌, [], length};
ghost use Rattle.machine.specs.Items.{items};
ghost use Rattle.suite.specs.Factors.{made_of};
ghost use Rattle.suite.specs.Specified.{CoverOf, tests_for};

use crate::factors::{Factors, Fronts};
use crate::keyed::with_key;
use crate::specification::Specification;
use cover::Cover;

impl Specification<'_> {
    // The factors, over a cover and an empty list for the words in front. Both are lent: they take 38 KB, and a result that held them would be copied.
    pub(crate) fn factors<'a>(self, cover: &'a Cover, fronts: &'a mut Fronts) -> Factors<'a>
        requires cover { CoverOf self cover.now }
        requires none { items fronts.old ≡ [] }
        ensures made { made_of result ≡ tests_for self.entry }
        ensures few { length (tests_for self.entry) ≤ 10108800 }
    {
        let keys = self.machine.machine.keys() as u64;
        with_key(cover.access.as_slice(), keys, fronts);
        Factors {
            fronts: fronts.as_slice(),
            ends: cover.separating.as_slice(),
            keys,
            extra: self.extra,
        }
    }
}
