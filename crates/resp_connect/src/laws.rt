//! Laws: functions that do nothing, and whose contracts are proved.

ghost use Rattle.std.specs.Prelude.{◌≡◌, ℕ, List, Some};
ghost use Rattle.resp_connect.specs.Shown.{settings_text};
ghost use Rattle.resp_connect.specs.Targets.{Settings};

/// Settings with one password show what they show with any other.
pub fn law_of_hidden_passwords()
    ensures { (s : Settings) (p q : List ℕ)
        → settings_text (record s { password = Some p })
        ≡ settings_text (record s { password = Some q }) }
{}
