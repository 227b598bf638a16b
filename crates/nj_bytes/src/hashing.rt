ghost use Rattle.std.specs.Prelude.{◌≡◌};
ghost use Rattle.nj_bytes.specs.Fnv.{fnv_from, fnv_of};

const FNV_OFFSET_BASIS: u64 = 14_695_981_039_346_656_037;

const FNV_PRIME: u64 = 1_099_511_628_211;

/// FNV-1a of 64 bits.
#[tactic(auto, unfolding(crate::specs::Fnv::fnv_of))]
pub fn fnv(bytes: &[u8]) -> u64
    ensures { result ≡ fnv_of bytes.now }
{
    fnv_on(FNV_OFFSET_BASIS, bytes)
}

/// FNV-1a of 64 bits, going on from a hash: of two pieces in turn it is the hash of both together.
#[tactic(auto, unfolding(crate::specs::Fnv::fnv_from, crate::specs::Fnv::fnv_step))]
pub fn fnv_on(hash: u64, bytes: &[u8]) -> u64
    ensures { result ≡ fnv_from hash bytes.now }
{
    bytes.iter().fold(
        hash,
        |hash, byte| (hash ^ u64::from(*byte)).wrapping_mul(FNV_PRIME),
    )
}

#[cfg(test)]
mod tests {
    use super::*;

    #[test]
    fn published_vectors(rt: HostRuntime) {
        assert_eq!(rt; fnv(b""), 0xcbf2_9ce4_8422_2325);
        assert_eq!(rt; fnv(b"a"), 0xaf63_dc4c_8601_ec8c);
        assert_eq!(rt; fnv(b"foobar"), 0x8594_4171_f739_67e8);
        assert_eq!(rt; fnv_on(fnv(b"foo"), b"bar"), fnv(b"foobar"));
    }
}
