//! Worked lists of items, each with its answer by the plain check. Each is a clause of a function with an empty body.
ghost use Rattle.std.specs.Prelude.{◌≡◌, ℕ, suc, Some, [], ◌∷◌};
ghost use Rattle.cdle_model.specs.Check.{accepts, check_items, duplicate, ends, erased_use, mismatch, not_a_function, not_an_equation, not_an_intersection, not_booleans, parts_differ, refuses, sides_differ, spends, wrong_kind};
ghost use Rattle.cdle_model.specs.Examples.{argument_never_reached, delta_of_one_side, doubled_type, endless, erased_variable_in_kept_part, erased_variable_used, growing, identity, of_variable, other_type, pair_by_eta, pair_of_other_parts, repeated_file, rho_from_left, rho_from_right, rho_plain, type_of_wrong_kind};
ghost use Rattle.cdle_model.specs.Forms.{allt, app, eq, fn, fst, kpit, phi, pi, star};
ghost use Rattle.cdle_model.specs.HeadForms.{deep};
ghost use Rattle.cdle_model.specs.Trees.{var};

/// Lists of items that are accepted, each with the least units for which it is.
pub fn examples_are_accepted()
    ensures of_identity { check_items 5 identity ≡ accepts }
    ensures of_pair_by_eta { check_items 17 pair_by_eta ≡ accepts }
    ensures of_argument_never_reached { check_items 9 argument_never_reached ≡ accepts }
    ensures of_rho_plain { check_items 11 rho_plain ≡ accepts }
    ensures of_rho_from_left { check_items 13 rho_from_left ≡ accepts }
    ensures of_doubled_0 { check_items 5 (doubled_type 0) ≡ accepts }
    ensures of_doubled_1 { check_items 17 (doubled_type 1) ≡ accepts }
    ensures of_doubled_2 { check_items 41 (doubled_type 2) ≡ accepts }
    ensures of_doubled_3 { check_items 89 (doubled_type 3) ≡ accepts }
{}

/// Lists of items that are refused, each with its path and its reason, and with the least units for which it is.
pub fn examples_are_refused()
    ensures of_repeated_file { check_items 1 repeated_file ≡ duplicate 1 0 }
    ensures of_erased_variable_used { check_items 1 erased_variable_used ≡ refuses 0 (2 ∷ 2 ∷ []) erased_use }
    ensures of_erased_variable_in_kept_part { check_items 1 erased_variable_in_kept_part ≡ refuses 0 (2 ∷ 2 ∷ []) erased_use }
    ensures of_rho_from_right { check_items 2 rho_from_right ≡ refuses 0 (2 ∷ 2 ∷ 2 ∷ 2 ∷ 2 ∷ []) (sides_differ (eq (var 1) (var 2)) (eq (var 2) (var 2))) }
    ensures of_applied_variable { check_items 1 (of_variable (app (var 0) (var 0))) ≡ refuses 0 (2 ∷ 2 ∷ 2 ∷ 1 ∷ []) (not_a_function (var 1)) }
    ensures of_projected_variable { check_items 1 (of_variable (fst (var 0))) ≡ refuses 0 (2 ∷ 2 ∷ 2 ∷ 1 ∷ []) (not_an_intersection (var 1)) }
    ensures of_variable_as_equation { check_items 1 (of_variable (phi (var 0) (var 0) (var 0))) ≡ refuses 0 (2 ∷ 2 ∷ 2 ∷ 1 ∷ []) (not_an_equation (var 1)) }
    ensures of_type_of_wrong_kind { check_items 1 type_of_wrong_kind ≡ refuses 0 (2 ∷ 2 ∷ []) (wrong_kind (kpit star star) (Some star)) }
    ensures of_other_type { check_items 7 other_type ≡ refuses 0 (2 ∷ []) (mismatch (allt star (allt star (pi (var 1) (var 2)))) (allt star (allt star (pi (var 1) (var 1))))) }
    ensures of_pair_of_other_parts { check_items 5 pair_of_other_parts ≡ refuses 0 (2 ∷ 2 ∷ []) (parts_differ (fn (var 0)) (fn (fn (var 0)))) }
    ensures of_delta_of_one_side { check_items 3 delta_of_one_side ≡ refuses 0 (2 ∷ 2 ∷ 2 ∷ 2 ∷ []) (not_booleans (var 1) (var 1)) }
{}

/// A list whose trees grow: its comparison is deep at the tenth contraction, after two pairs.
pub fn example_is_deep()
    ensures { check_items 12 (growing 1000) ≡ ends 0 deep }
{}

/// The same lists with one unit less, and one whose comparison never ends.
pub fn examples_are_spent()
    ensures of_identity { check_items 4 identity ≡ spends 0 (2 ∷ []) }
    ensures of_pair_by_eta { check_items 16 pair_by_eta ≡ spends 0 (2 ∷ []) }
    ensures of_argument_never_reached { check_items 8 argument_never_reached ≡ spends 0 (2 ∷ []) }
    ensures of_rho_plain { check_items 10 rho_plain ≡ spends 0 (2 ∷ []) }
    ensures of_rho_from_left { check_items 12 rho_from_left ≡ spends 0 (2 ∷ []) }
    ensures of_doubled_0 { check_items 4 (doubled_type 0) ≡ spends 1 (2 ∷ []) }
    ensures of_doubled_1 { check_items 16 (doubled_type 1) ≡ spends 1 (2 ∷ []) }
    ensures of_doubled_2 { check_items 40 (doubled_type 2) ≡ spends 1 (2 ∷ []) }
    ensures of_doubled_3 { check_items 88 (doubled_type 3) ≡ spends 1 (2 ∷ []) }
    ensures of_rho_from_right { check_items 1 rho_from_right ≡ spends 0 (2 ∷ 2 ∷ 2 ∷ 2 ∷ 2 ∷ []) }
    ensures of_other_type { check_items 6 other_type ≡ spends 0 (2 ∷ []) }
    ensures of_pair_of_other_parts { check_items 4 pair_of_other_parts ≡ spends 0 (2 ∷ 2 ∷ 2 ∷ []) }
    ensures of_delta_of_one_side { check_items 2 delta_of_one_side ≡ spends 0 (2 ∷ 2 ∷ 2 ∷ 2 ∷ []) }
    ensures of_growing { check_items 11 (growing 1000) ≡ spends 0 (2 ∷ []) }
    ensures of_endless { (n : ℕ) → check_items (suc n) endless ≡ spends 0 (2 ∷ []) }
{}
