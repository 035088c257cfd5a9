ghost use Rattle.std.specs.Prelude.{◌≡◌, ◌+◌, ◌<◌, ◌≤◌, ◌^◌, length};
ghost use Rattle.ts_payload.specs.Number as number;

// The number that so many bytes from a place on write in network byte order.
pub fn number_at(bytes: &[u8], place: usize, len: usize) -> u128
    requires within { place + len ≤ length bytes.now }
    requires short { len ≤ 16 }
    ensures value { result ≡ number.number_at place len bytes.now }
    ensures bound { result < 256 ^ len }
{
    let (_, behind) = bytes.split_at(place);
    let (written, _) = behind.split_at(len);
    number_of(written)
}

// The number that bytes write in network byte order.
#[tactic(auto, using(crate::proofs::Numbers::next_fits, crate::proofs::Numbers::next_below))]
fn number_of(bytes: &[u8]) -> u128
    requires { length bytes.now ≤ 16 }
    ensures value { result ≡ number.number_of bytes.now }
    ensures bound { result < 256 ^ length bytes.now }
{
    let mut number = 0;
    for byte in bytes {
        number = number * 256 + u128::from(*byte);
    }
    number
}
