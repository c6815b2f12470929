//! A row as a key of an ordered map.

use crate::order::row_order;
use std::cmp::Ordering;
use value_types::Row;

/// A row, compared as a key: NULL equals NULL, and texts are padded.
#[derive(Clone, Copy)]
pub(crate) struct Keyed<'a> {
    pub(crate) row: &'a Row,
}

impl PartialEq for Keyed<'_> {
    ghost use Rattle.std.specs.Cmp.{partial_equiv_from_equiv, eq_by_cmp_equiv, on_total};
    ghost use Rattle.std.specs.Ordering.{eq_by_cmp, on};
    ghost use Rattle.value_types.specs.Order.{key_cmp};
    ghost use Rattle.value_types.specs.OrderLaws.{key_cmp_total};

    ghost eq = { eq_by_cmp (on (λ key. key.row.now) key_cmp) };

    ghost laws = { partial_equiv_from_equiv (eq_by_cmp_equiv (on_total (λ key. key.row.now) key_cmp_total)) };

    fn eq(&self, other: &Self) -> bool {
        self.cmp(other).is_eq()
    }
}

impl Eq for Keyed<'_> {
    ghost use Rattle.std.specs.Cmp.{eq_by_cmp_equiv, on_total};
    ghost use Rattle.value_types.specs.OrderLaws.{key_cmp_total};

    ghost laws = { eq_by_cmp_equiv (on_total (λ key. key.row.now) key_cmp_total) };
}

impl PartialOrd for Keyed<'_> {
    ghost use Rattle.std.specs.Cmp.{po, on_total};
    ghost use Rattle.std.specs.Ordering.{as_partial_cmp, on};
    ghost use Rattle.std.proofs.Common.{refl};
    ghost use Rattle.value_types.specs.Order.{key_cmp};
    ghost use Rattle.value_types.specs.OrderLaws.{key_cmp_total};

    ghost partial_cmp = { as_partial_cmp (on (λ key. key.row.now) key_cmp) };

    ghost laws = { po (on_total (λ key. key.row.now) key_cmp_total) (λ _ _. refl) };

    fn partial_cmp(&self, other: &Self) -> Option<Ordering> {
        Some(self.cmp(other))
    }
}

impl Ord for Keyed<'_> {
    ghost use Rattle.std.proofs.Common.{refl};
    ghost use Rattle.std.specs.Cmp.{on_total};
    ghost use Rattle.std.specs.Ordering.{on};
    ghost use Rattle.value_types.specs.Order.{key_cmp};
    ghost use Rattle.value_types.specs.OrderLaws.{key_cmp_total};

    ghost cmp = { on (λ key. key.row.now) key_cmp };

    ghost total = { on_total (λ key. key.row.now) key_cmp_total };

    ghost matches_partial_cmp = { λ _ _. refl };

    ghost matches_eq = { λ _ _. refl };

    fn cmp(&self, other: &Self) -> Ordering {
        row_order(self.row.as_slice(), other.row.as_slice())
    }
}
