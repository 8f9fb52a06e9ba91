//! Laws: functions that do nothing, and whose contracts are proved.

ghost use Rattle.std.specs.Prelude.{◌≡◌, ℕ, List};
ghost use Rattle.resp_args.specs.Args.{Args};
ghost use Rattle.resp_routing.specs.Routes.{AreApart, InOneSlot};
ghost use Rattle.resp_routing.specs.Slots.{IsSlot};

/// A key has one slot. So keys that are all in one slot aren't in several.
pub fn law_of_slots()
    ensures slot { (key : List ℕ) (s t : ℕ) → IsSlot key s → IsSlot key t → s ≡ t }
    ensures slots { (keys : Args) (s : ℕ) → InOneSlot keys s → AreApart keys → ⊥ }
{}
