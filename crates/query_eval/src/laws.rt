//! What the answer of a query rests on: rows that are not read take no part in it, and each reference has its
//! image.

ghost use Rattle.std.specs.Prelude.{◌≡◌, ◌<◌, ◌++◌, ℕ, List, length, All, IsTrue, Ok};
ghost use Rattle.std.specs.List.{list_all};
ghost use Rattle.value_types.specs.declared.value.Value.{Value as SqlValue};
ghost use Rattle.bound_tree.specs.declared.expr.BoundTest.{BoundTest};
ghost use Rattle.bound_tree.specs.declared.query.BoundQuery.{BoundQuery};
ghost use Rattle.bound_tree.specs.declared.truth.Truth.TheVariants.{True};
ghost use Rattle.bound_tree.specs.Meaning.{truth};
ghost use Rattle.bound_tree.specs.Setting.{Setting};
ghost use Rattle.bound_tree.specs.Typed.{Fits, SettingTypes, is_formed_test};
ghost use Rattle.join_rows.specs.Joined.{Row};
ghost use Rattle.query_eval.specs.Ans.{answer_of, images_after, references_of};
ghost use Rattle.query_eval.specs.Joining.{Stock};
ghost use Rattle.query_eval.specs.KeyTests.{column_tests, key_tests, meets};

/// A row that fails a key test of its reference makes no well-formed WHERE true, beside whatever rows of
/// other references it stands.
pub fn law_key_tests()
    ensures { (types : SettingTypes) (setting : Setting) → Fits types setting
        → (test : BoundTest) → IsTrue (is_formed_test types test) → truth setting test ≡ Ok True
        → (before row behind : Row) → setting.row ≡ before ++ (row ++ behind)
        → (key : List ℕ) → All (λ place. place < length row) key
        → IsTrue (list_all (meets row) (key_tests key (length before) (column_tests setting.vars test))) }
{}

/// An answer takes an image for each reference of the query, in their order, those of inner queries first,
/// and leaves the others.
pub fn law_images()
    ensures { (vars system : List SqlValue) (query : BoundQuery) (stock left : Stock) (rows : List Row)
        → answer_of vars system query stock ≡ Ok (rows, left)
        → left.images ≡ images_after (references_of query) stock.images }
{}
