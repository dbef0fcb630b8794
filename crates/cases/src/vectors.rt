// Published vectors: the FNV-1a test suite, and SplitMix64 from the seeds 1234567 and 0.
#[cfg(test)]
mod tests {
    use readers::stream::{SplitMix, fnv1a};

    #[test]
    fn fnv1a_64(rt: HostRuntime) {
        assert_eq!(rt; fnv1a(b""), 0xcbf29ce484222325);
        assert_eq!(rt; fnv1a(b"a"), 0xaf63dc4c8601ec8c);
        assert_eq!(rt; fnv1a(b"b"), 0xaf63df4c8601f1a5);
        assert_eq!(rt; fnv1a(b"foobar"), 0x85944171f73967e8);
        assert_eq!(rt; fnv1a(b"chongo was here!\n"), 0x46810940eff5f915);
    }

    #[test]
    fn splitmix64(rt: HostRuntime) {
        let mut source = SplitMix::new(1234567);
        assert_eq!(rt; source.next_word(), 6457827717110365317);
        assert_eq!(rt; source.next_word(), 3203168211198807973);
        assert_eq!(rt; source.next_word(), 9817491932198370423);
        assert_eq!(rt; source.next_word(), 4593380528125082431);
        assert_eq!(rt; source.next_word(), 16408922859458223821);
        let mut zero = SplitMix::new(0);
        assert_eq!(rt; zero.next_word(), 0xe220a8397b1dcdaf);
        assert_eq!(rt; zero.next_word(), 0x6e789e6aa1b965f4);
        assert_eq!(rt; zero.next_word(), 0x06c45d188009454f);
    }
}
