// Three truth values.
ghost use Rattle.std.specs.Prelude.{◌≡◌};
ghost use Rattle.pg_eval.specs.Tables.{known, not_of, and_of, or_of};

/// The truth of a filter.
#[derive(Clone, Copy, PartialEq, Eq)]
pub enum Tri {
    Yes,
    No,
    Unknown,
}

impl Tri {
    pub(crate) fn known(truth: bool) -> Tri
        ensures { result ≡ known truth }
    {
        if truth { Tri::Yes } else { Tri::No }
    }

    pub(crate) fn inverted(self) -> Tri
        ensures { result ≡ not_of self }
    {
        match self {
            Tri::Yes => Tri::No,
            Tri::No => Tri::Yes,
            Tri::Unknown => Tri::Unknown,
        }
    }

    pub(crate) fn and(self, other: Tri) -> Tri
        ensures { result ≡ and_of self other }
    {
        match (self, other) {
            (Tri::No, _) | (_, Tri::No) => Tri::No,
            (Tri::Yes, Tri::Yes) => Tri::Yes,
            _ => Tri::Unknown,
        }
    }

    pub(crate) fn or(self, other: Tri) -> Tri
        ensures { result ≡ or_of self other }
    {
        match (self, other) {
            (Tri::Yes, _) | (_, Tri::Yes) => Tri::Yes,
            (Tri::No, Tri::No) => Tri::No,
            _ => Tri::Unknown,
        }
    }
}
