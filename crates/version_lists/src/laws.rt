ghost use Rattle.std.specs.Prelude.{◌≡◌, ◌++◌, ◌∷◌, Bool, List, filter, map};
ghost use Rattle.version_lists.specs.Orders.{Ascends, NoNumber, in_order};
ghost use Rattle.version_lists.specs.Versions.{Version};

/// Laws of the list of versions that contracts see. The call itself does nothing.
pub fn order_laws()
    // No number in it is below the one in front of it.
    ensures ascends { (versions : List Version) → Ascends 0 (in_order versions) }
    // What is taken out of it can be taken out before it is put in order.
    ensures filtered { (p : Version → Bool) (versions : List Version) → filter p (in_order versions) ≡ in_order (filter p versions) }
    // So can a change that leaves the numbers be made.
    ensures mapped { (f : Version → Version) → ((v : Version) → (f v).number ≡ v.number) → (versions : List Version) → map f (in_order versions) ≡ in_order (map f versions) }
    // A version may be held behind those of other numbers, or in front of them.
    ensures moved { (v : Version) (before behind : List Version) → NoNumber v.number before → in_order (before ++ v ∷ behind) ≡ in_order (v ∷ before ++ behind) }
{}
