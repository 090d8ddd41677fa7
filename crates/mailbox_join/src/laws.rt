ghost use Rattle.std.specs.Prelude.{◌≡◌, ◌≤◌, ◌<◌, ◌^◌, ◌-◌, true};
ghost use Rattle.locus_ids.specs.declared.ids.CallId.{CallId};
ghost use Rattle.trace_book.specs.Names.{is_name};
ghost use Rattle.trace_book.specs.Messages.{is_message, message_name};

/// The name that a call gives to its message is one that a directory may have, and it is told to be a message's; and no two calls give
/// one name.
pub fn message_names_tell_calls()
    ensures names { (c : CallId) → c.site < 2 ^ 8 → c.boot < 2 ^ 32 → c.n < 2 ^ 32 → is_name (message_name c) ≡ true }
    ensures messages { (c : CallId) → 1 ≤ c.site → c.site ≤ 32 → 1 ≤ c.boot → c.boot < 2 ^ 32 → 1 ≤ c.n → c.n < 2 ^ 32 → is_message (message_name c) ≡ true }
    ensures once { (c d : CallId) → c.site < 2 ^ 8 → c.boot < 2 ^ 32 → c.n < 2 ^ 32 → d.site < 2 ^ 8 → d.boot < 2 ^ 32 → d.n < 2 ^ 32 → message_name c ≡ message_name d → c ≡ d }
{}
