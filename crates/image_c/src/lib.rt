// The image check for callers in C and Rust, as a static library.
#![tactic(auto)]

ghost use Rattle.std.specs.Prelude.{◌≡◌};
ghost use Rattle.format.specs.Faults.{fault};
ghost use Rattle.image.specs.Told.{answered};

// 0, or the fault's number times 2^32 plus its offset.
#[unsafe(no_mangle)]
pub extern "C" fn card_image_check(bytes: &[u8]) -> u64
    ensures { result ≡ answered (fault bytes.now) }
{
    image::card_image_check(bytes)
}

#[cfg(test)]
mod tests {
    use super::*;

    // A card without nodes, and the same a byte short.
    #[test]
    fn answers(rt: HostRuntime) {
        assert_eq!(rt; card_image_check(&[0; 32]), 0);
        assert_eq!(rt; card_image_check(&[0; 31]), 0x1_0000_001f);
    }
}
