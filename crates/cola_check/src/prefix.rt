//! What the tests of a run know of its cells, up to one of them.
ghost use Rattle.std.specs.Prelude.{◌≤◌, ◌<◌, IfSome};
ghost use Rattle.std.proofs.Props.{props};

use crate::kinds::{has_link, looks_of, stands_behind, young_of};
use cola_cell::{CellRoom, Packed};

/// What is known of the first cells of a run.
#[derive(Drop)]
pub(crate) struct Prefix {
    /// How many cells they are.
    pub place: u32,
    /// How many of them are lookahead cells.
    pub looks: u32,
    /// How many of them are young items.
    pub young: u32,
    /// The last of them.
    pub last: CellRoom,
    /// The index of the first that does not go on the order, where there is one.
    pub disorder: Option<u32>,
    /// Whether a run that passes the test of its sample may begin with them.
    pub is_sampled: bool,
    pub ghost looks_within: { looks ≤ place },
    pub ghost young_within: { young ≤ place },
    pub ghost disorder_within: { IfSome disorder (λ index. index < place) } by { Prim.hlevel props },
}

impl Prefix {
    ghost use Rattle.std.specs.Prelude.{◌≡◌, ◌+◌, ◌-◌, ◌<◌, ◌^◌, ◌↔◌, ◌++◌, ◌∷◌, [], List, IsTrue, IfSome};
    ghost use Rattle.cola_cell.specs.Held.{LawCell, as_cell};
    ghost use Rattle.cola_runs.specs.Cells.{count_looks};
    ghost use Rattle.cola_check.specs.Prefix.{ComesNext, OrderIs, Suits, IsSeen};

    /// What is known of no cells.
    pub(crate) fn empty() -> Prefix
        ensures seen { (lists : List (List LawCell)) → IsSeen lists [] result }
        ensures place { result.place ≡ 0 }
        ensures looks { result.looks ≡ 0 }
    {
        Prefix {
            place: 0,
            looks: 0,
            young: 0,
            last: CellRoom::empty(),
            disorder: None,
            is_sampled: true,
        }
    }

    /// Whether a cell goes on the order of these.
    fn is_next(&self, cell: &Packed) -> bool
        ensures { IsTrue result ↔ ComesNext self.now.last self.now.looks (as_cell cell.now) }
    {
        stands_behind(&self.last, cell) && has_link(cell, self.looks)
    }

    /// Where the order ends in these and the next cell.
    fn disorder_with(&self, cell: &Packed) -> Option<u32>
        ensures order { (lists : List (List LawCell)) (cells : List LawCell) → IsSeen lists cells self.now →
            OrderIs (cells ++ as_cell cell.now ∷ []) result }
        ensures within { IfSome result (λ index. index < self.now.place + 1) }
    {
        if self.is_next(cell) {
            return self.disorder;
        }
        self.disorder.or(Some(self.place))
    }

    /// Whether these may begin a run that passes the test of the sample, and the next cell is what that test asks.
    fn is_sampled_with(&self, suits: bool) -> bool
        ensures { IsTrue result ↔ (IsTrue self.now.is_sampled × IsTrue suits) }
    {
        self.is_sampled && suits
    }

    /// Takes the next cell, which is what the test of the sample asks there or not.
    pub(crate) fn take(&mut self, cell: &Packed, suits: bool)
        requires { self.old.place < 2 ^ 32 - 1 }
        ensures seen { (lists : List (List LawCell)) (cells : List LawCell) → IsSeen lists cells self.old →
            (IsTrue suits ↔ Suits lists self.old.looks (as_cell cell.now)) → IsSeen lists (cells ++ as_cell cell.now ∷ []) self.new }
        ensures place { self.new.place ≡ self.old.place + 1 }
        ensures looks { self.new.looks ≡ self.old.looks + count_looks (as_cell cell.now ∷ []) }
    {
        let disorder = self.disorder_with(cell);
        let is_sampled = self.is_sampled_with(suits);
        self.place += 1;
        self.looks += looks_of(cell);
        self.young += young_of(cell);
        self.last.put(cell);
        self.disorder = disorder;
        self.is_sampled = is_sampled;
    }
}
