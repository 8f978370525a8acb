//! Equality and order of names and of paths: name by name, and names by their bytes.

ghost use Rattle.std.specs.Ordering.{nat_cmp, eq_by_cmp, as_partial_cmp};
ghost use Rattle.std.specs.Cmp.{nat_cmp_total, partial_equiv_from_equiv, eq_by_cmp_equiv, partial_order_from_total};
ghost use Rattle.std.specs.Cmp.Lexicographic.{slice_cmp, lists_total};
ghost use Rattle.std.specs.Prelude.{refl};
ghost use Rattle.sd_path.specs.Names.{names_cmp};

use crate::name::Name;
use crate::path::Path;
use std::cmp::Ordering;

impl PartialEq for Name<'_> {
    ghost eq = { eq_by_cmp (slice_cmp nat_cmp) };

    ghost laws = { partial_equiv_from_equiv (eq_by_cmp_equiv (lists_total nat_cmp_total)) };

    fn eq(&self, other: &Name<'_>) -> bool {
        self.cmp(other).is_eq()
    }
}

impl Eq for Name<'_> {
    ghost laws = { eq_by_cmp_equiv (lists_total nat_cmp_total) };
}

impl PartialOrd for Name<'_> {
    ghost partial_cmp = { as_partial_cmp (slice_cmp nat_cmp) };

    ghost laws = { partial_order_from_total (lists_total nat_cmp_total) };

    fn partial_cmp(&self, other: &Name<'_>) -> Option<Ordering> {
        Some(self.cmp(other))
    }
}

impl Ord for Name<'_> {
    ghost cmp = { slice_cmp nat_cmp };

    ghost total = { lists_total nat_cmp_total };

    ghost matches_partial_cmp = { λ a b. refl };

    ghost matches_eq = { λ a b. refl };

    fn cmp(&self, other: &Name<'_>) -> Ordering {
        self.as_str().as_bytes().cmp(other.as_str().as_bytes())
    }
}

impl PartialEq for Path {
    ghost eq = { eq_by_cmp names_cmp };

    ghost laws = { partial_equiv_from_equiv (eq_by_cmp_equiv (lists_total (lists_total nat_cmp_total))) };

    fn eq(&self, other: &Path) -> bool {
        self.cmp(other).is_eq()
    }
}

impl Eq for Path {
    ghost laws = { eq_by_cmp_equiv (lists_total (lists_total nat_cmp_total)) };
}

impl PartialOrd for Path {
    ghost partial_cmp = { as_partial_cmp names_cmp };

    ghost laws = { partial_order_from_total (lists_total (lists_total nat_cmp_total)) };

    fn partial_cmp(&self, other: &Path) -> Option<Ordering> {
        Some(self.cmp(other))
    }
}

impl Ord for Path {
    ghost cmp = { names_cmp };

    ghost total = { lists_total (lists_total nat_cmp_total) };

    ghost matches_partial_cmp = { λ a b. refl };

    ghost matches_eq = { λ a b. refl };

    fn cmp(&self, other: &Path) -> Ordering {
        self.as_path_ref().compare(&other.as_path_ref())
    }
}
