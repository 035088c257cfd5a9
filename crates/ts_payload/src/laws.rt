//! What the definitions of payloads come to, each law the contract of a function that does nothing.
ghost use Rattle.std.specs.Prelude.{◌≡◌, ◌≤◌, ◌<◌, ◌↔◌, ◌++◌, ℕ, [], List, Ok, Err, length};
ghost use Rattle.ts_payload.specs.declared.fault.TsFault.{TsFault};
ghost use Rattle.ts_payload.specs.declared.selector.Ts.{Ts};
ghost use Rattle.ts_payload.specs.Payload.{IsPayload, IsPayloadFault, payload_bytes};
ghost use Rattle.ts_payload.specs.Reading.{payload_of};
ghost use Rattle.ts_payload.specs.Selector.{AreSelectors};

/// Reading from left to right gives a list exactly where the bytes are a payload with that list, by
/// their fields and lengths, and a fault exactly where it is the first of them.
pub fn payloads_are_read()
    ensures payload { (bytes : List ℕ) (list : List Ts) →
        IsPayload bytes list ↔ (payload_of bytes ≡ Ok list) }
    ensures fault { (bytes : List ℕ) (fault : TsFault) →
        IsPayloadFault bytes fault ↔ (payload_of bytes ≡ Err fault) }
{}

/// A payload has one list. What is written of at most 127 selectors is a payload of them, so it is
/// read back. No payload is a proper prefix of another.
pub fn one_spelling()
    ensures one_list { (bytes : List ℕ) (list other : List Ts) →
        IsPayload bytes list → IsPayload bytes other → list ≡ other }
    ensures written { (next : ℕ) (list : List Ts) → AreSelectors list → length list ≤ 127
        → IsPayload (payload_bytes next list) list }
    ensures read_back { (next : ℕ) (list : List Ts) → AreSelectors list → length list ≤ 127
        → payload_of (payload_bytes next list) ≡ Ok list }
    ensures no_prefix { (bytes more : List ℕ) (list other : List Ts) →
        IsPayload bytes list → IsPayload (bytes ++ more) other → more ≡ [] }
{}
