ghost use Rattle.std.specs.Prelude.{◌≡◌, ℕ, ◌+◌, ◌^◌, ◌<◌, ◌≤◌, true, false, List, ◌++◌, length, take};
ghost use Rattle.pg_messages.specs.declared.back.Back.{Back};
ghost use Rattle.pg_messages.specs.declared.back.TheConstants.{BACK_LIMIT};
ghost use Rattle.pg_messages.specs.declared.decoded.Decoded.TheVariants as decoded;
ghost use Rattle.pg_messages.specs.declared.decoded.Why.{Why};
ghost use Rattle.pg_messages.specs.declared.front.Front.{Front};
ghost use Rattle.pg_messages.specs.declared.front.TheConstants.{FRONT_LIMIT};
ghost use Rattle.pg_messages.specs.declared.startup.Startup.{Startup};
ghost use Rattle.pg_messages.specs.declared.startup.TheConstants.{STARTUP_CODE, STARTUP_LIMIT};
ghost use Rattle.pg_messages.specs.Back.{back_side, back_of, back_bytes, back_refusal, IsBack};
ghost use Rattle.pg_messages.specs.Front.{front_side, front_of, front_bytes, front_refusal, IsFront};
ghost use Rattle.pg_messages.specs.Limits.{front_limit, back_limit, startup_limit, protocol_code};
ghost use Rattle.pg_messages.specs.Packet.{is_more};
ghost use Rattle.message_shapes.specs.Spelling.{IsBytes};
ghost use Rattle.pg_messages.specs.Sides.{IsMalformed};
ghost use Rattle.pg_messages.specs.Startup.{startup_of, startup_bytes, startup_refusal, IsStartup};

/// Laws of the start-up packets, of all values and all bytes. The call itself does nothing.
pub fn startup_laws()
    // What the encoder writes spells its value.
    ensures written { (m : Startup) → startup_refusal m ≡ None → IsStartup m (startup_bytes m) }
    // What is spelled is read, whatever follows it.
    ensures read { (m : Startup) (packet rest : List ℕ) → IsStartup m packet → startup_of (packet ++ rest) ≡ decoded.Whole m (length packet) }
    // What is read is spelled so by its bytes.
    ensures spelled { (bytes : List ℕ) (m : Startup) (n : ℕ) → IsBytes bytes → startup_of bytes ≡ decoded.Whole m n → (n ≤ length bytes) × IsStartup m (take n bytes) }
    // No two values have one spelling.
    ensures one { (m k : Startup) (packet : List ℕ) → IsStartup m packet → IsStartup k packet → m ≡ k }
    // A packet that isn't all there is waited for.
    ensures front { (bytes more : List ℕ) (m : Startup) → IsBytes bytes → 0 < length more → IsStartup m (bytes ++ more) → startup_of bytes ≡ decoded.More }
    // Bad bytes begin no packet, and no packet begins them.
    ensures bad { (bytes more : List ℕ) (m : Startup) (packet rest : List ℕ) (place : ℕ) (cause : Why) → startup_of bytes ≡ decoded.Bad place cause → IsStartup m packet → bytes ++ more ≡ packet ++ rest → ⊥ }
    // What is waited for is shorter than the longest packet.
    ensures waits { (bytes : List ℕ) → is_more (startup_of bytes) ≡ true → length bytes < startup_limit }
    // What lies behind a packet, be it whole or bad, changes nothing.
    ensures behind { (bytes more : List ℕ) → is_more (startup_of bytes) ≡ false → startup_of (bytes ++ more) ≡ startup_of bytes }
{}

/// Laws of the frontend messages, of all values and all bytes. The call itself does nothing.
pub fn front_laws()
    // What the encoder writes spells its value.
    ensures written { (m : Front) → front_refusal m ≡ None → IsFront m (front_bytes m) }
    // What is spelled is read, whatever follows it.
    ensures read { (m : Front) (packet rest : List ℕ) → IsFront m packet → front_of (packet ++ rest) ≡ decoded.Whole m (length packet) }
    // What is read is spelled so by its bytes.
    ensures spelled { (bytes : List ℕ) (m : Front) (n : ℕ) → IsBytes bytes → front_of bytes ≡ decoded.Whole m n → (n ≤ length bytes) × IsFront m (take n bytes) }
    // No two values have one spelling.
    ensures one { (m k : Front) (packet : List ℕ) → IsFront m packet → IsFront k packet → m ≡ k }
    // A packet that isn't all there is waited for.
    ensures front { (bytes more : List ℕ) (m : Front) → IsBytes bytes → 0 < length more → IsFront m (bytes ++ more) → front_of bytes ≡ decoded.More }
    // Bad bytes begin no packet, and no packet begins them.
    ensures bad { (bytes more : List ℕ) (m : Front) (packet rest : List ℕ) (place : ℕ) (cause : Why) → front_of bytes ≡ decoded.Bad place cause → IsFront m packet → bytes ++ more ≡ packet ++ rest → ⊥ }
    // Bytes are bad where the grammar says, and at no other place.
    ensures malformed { (bytes : List ℕ) (place : ℕ) (cause : Why) → IsBytes bytes → front_of bytes ≡ decoded.Bad place cause → IsMalformed front_side bytes place cause }
    ensures refused { (bytes : List ℕ) (place : ℕ) (cause : Why) → IsBytes bytes → IsMalformed front_side bytes place cause → front_of bytes ≡ decoded.Bad place cause }
    // What is waited for is shorter than the longest packet.
    ensures waits { (bytes : List ℕ) → is_more (front_of bytes) ≡ true → length bytes ≤ front_limit }
    // What lies behind a packet, be it whole or bad, changes nothing.
    ensures behind { (bytes more : List ℕ) → is_more (front_of bytes) ≡ false → front_of (bytes ++ more) ≡ front_of bytes }
{}

/// Laws of the backend messages, of all values and all bytes. The call itself does nothing.
pub fn back_laws()
    // What the encoder writes spells its value.
    ensures written { (m : Back) → back_refusal m ≡ None → IsBack m (back_bytes m) }
    // What is spelled is read, whatever follows it.
    ensures read { (m : Back) (packet rest : List ℕ) → IsBack m packet → back_of (packet ++ rest) ≡ decoded.Whole m (length packet) }
    // What is read is spelled so by its bytes.
    ensures spelled { (bytes : List ℕ) (m : Back) (n : ℕ) → IsBytes bytes → back_of bytes ≡ decoded.Whole m n → (n ≤ length bytes) × IsBack m (take n bytes) }
    // No two values have one spelling.
    ensures one { (m k : Back) (packet : List ℕ) → IsBack m packet → IsBack k packet → m ≡ k }
    // A packet that isn't all there is waited for.
    ensures front { (bytes more : List ℕ) (m : Back) → IsBytes bytes → 0 < length more → IsBack m (bytes ++ more) → back_of bytes ≡ decoded.More }
    // Bad bytes begin no packet, and no packet begins them.
    ensures bad { (bytes more : List ℕ) (m : Back) (packet rest : List ℕ) (place : ℕ) (cause : Why) → back_of bytes ≡ decoded.Bad place cause → IsBack m packet → bytes ++ more ≡ packet ++ rest → ⊥ }
    // Bytes are bad where the grammar says, and at no other place.
    ensures malformed { (bytes : List ℕ) (place : ℕ) (cause : Why) → IsBytes bytes → back_of bytes ≡ decoded.Bad place cause → IsMalformed back_side bytes place cause }
    ensures refused { (bytes : List ℕ) (place : ℕ) (cause : Why) → IsBytes bytes → IsMalformed back_side bytes place cause → back_of bytes ≡ decoded.Bad place cause }
    // What is waited for is shorter than the longest packet.
    ensures waits { (bytes : List ℕ) → is_more (back_of bytes) ≡ true → length bytes ≤ back_limit }
    // What lies behind a packet, be it whole or bad, changes nothing.
    ensures behind { (bytes more : List ℕ) → is_more (back_of bytes) ≡ false → back_of (bytes ++ more) ≡ back_of bytes }
{}

/// The numbers of the protocol, which the code's constants are. The call itself does nothing.
pub fn limit_laws()
    ensures front { FRONT_LIMIT ≡ front_limit }
    ensures back { BACK_LIMIT ≡ back_limit }
    ensures startup { STARTUP_LIMIT ≡ startup_limit }
    ensures code { STARTUP_CODE ≡ protocol_code }
{}
