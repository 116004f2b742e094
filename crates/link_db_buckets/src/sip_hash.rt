//! SipHash-1-3: SipHash (Aumasson and Bernstein, 'SipHash: a fast short-input PRF', 2012) with one round for each word and three at the end.

ghost use Rattle.std.specs.Prelude.{◌≡◌, ◌*◌, ◌/◌, ◌<◌, length, drop};
ghost use Rattle.std.specs.Int.{w64, from_le_bytes};
ghost use Rattle.link_db_buckets.specs.SipHash as sip;

/// The four words of the state.
#[derive(Clone, Copy)]
struct SipState {
    v0: u64,
    v1: u64,
    v2: u64,
    v3: u64,
}

// The state before the message.
#[inline(always)]
fn sip_start(k0: u64, k1: u64) -> SipState
    ensures { result ≡ sip.sip_start k0 k1 }
{
    SipState {
        v0: k0 ^ 0x736f_6d65_7073_6575,
        v1: k1 ^ 0x646f_7261_6e64_6f6d,
        v2: k0 ^ 0x6c79_6765_6e65_7261,
        v3: k1 ^ 0x7465_6462_7974_6573,
    }
}

// One round.
#[inline(always)]
fn sip_round(s: SipState) -> SipState
    ensures { result ≡ sip.sip_round s }
{
    let a0 = s.v0.wrapping_add(s.v1);
    let a2 = s.v2.wrapping_add(s.v3);
    let a1 = s.v1.rotate_left(13) ^ a0;
    let a3 = s.v3.rotate_left(16) ^ a2;
    let b2 = a2.wrapping_add(a1);
    let b0 = a0.rotate_left(32).wrapping_add(a3);
    SipState {
        v0: b0,
        v1: a1.rotate_left(17) ^ b2,
        v2: b2.rotate_left(32),
        v3: a3.rotate_left(21) ^ b0,
    }
}

// The state with one more word of the message.
#[inline(always)]
fn absorb(s: SipState, word: u64) -> SipState
    ensures { result ≡ sip.absorb s word }
{
    let t = sip_round(SipState {
        v0: s.v0,
        v1: s.v1,
        v2: s.v2,
        v3: s.v3 ^ word,
    });
    SipState {
        v0: t.v0 ^ word,
        v1: t.v1,
        v2: t.v2,
        v3: t.v3,
    }
}

// The number of a state that has the whole message.
#[inline(always)]
fn sip_finish(s: SipState) -> u64
    ensures { result ≡ sip.sip_finish s }
{
    let start = SipState {
        v0: s.v0,
        v1: s.v1,
        v2: s.v2 ^ 0xff,
        v3: s.v3,
    };
    let t = sip_round(sip_round(sip_round(start)));
    t.v0 ^ t.v1 ^ t.v2 ^ t.v3
}

// The number of at most 7 bytes, low byte first.
#[inline(always)]
fn short_word(bytes: &[u8]) -> u64
    requires { length bytes.now < 8 }
    ensures { result ≡ from_le_bytes w64 bytes.now }
{
    let mut word = 0;
    let mut at = bytes.len();
    'bytes: while at > 0 {
        at -= 1;
        word = word * 256 + u64::from(bytes[at]);
    }
    word
}

// The number of the bytes behind the last whole word. They are the highest of the last 8 bytes, so one load and two shifts give it: a processor
// can't foresee where a loop over them ends. Two shifts, since one may not be by 64.
#[inline(always)]
fn rest_word(bytes: &[u8]) -> u64
    ensures { result ≡ from_le_bytes w64 (drop (length bytes.now / 8 * 8) bytes.now) }
{
    match bytes.last_chunk::<8>() {
        Some(eight) => (u64::from_le_bytes(*eight) >> (56 - 8 * (bytes.len() % 8))) >> 8,
        None => short_word(bytes),
    }
}

// The last word: the bytes behind the last whole one, and highest the length.
#[inline(always)]
fn last_word(bytes: &[u8]) -> u64
    ensures { result ≡ sip.last_word bytes.now }
{
    rest_word(bytes) + ((bytes.len() as u64) << 56)
}

/// SipHash-1-3 of bytes, under the key of the words `k0` and `k1`.
pub fn sip_hash(k0: u64, k1: u64, bytes: &[u8]) -> u64
    ensures { result ≡ sip.sip_hash k0 k1 bytes.now }
{
    let (words, _) = bytes.as_chunks::<8>();
    let mut state = sip_start(k0, k1);
    'words: for word in words {
        state = absorb(state, u64::from_le_bytes(*word));
    }
    sip_finish(absorb(state, last_word(bytes)))
}
