// The limits of a shape's five numbers, each from both sides.
#[cfg(test)]
mod tests {
    use crate::given::shape;
    use shapes::fault::{Fault, Layer};
    use shapes::limit::Limit;

    // The fault's place, if there is a fault.
    fn place(numbers: [u16; 5]) -> Option<u64> {
        Some(shape(numbers).err()?.place())
    }

    #[test]
    fn limits(rt: HostRuntime) {
        assert_eq!(rt; place([1, 1, 0, 1, 1]), None);
        assert_eq!(rt; place([256, 8, 32, 32, 64]), None);
        assert_eq!(rt; place([1, 1, 1, 0, 1]), None);
        assert_eq!(rt; place([0, 1, 0, 1, 1]), Some(1));
        assert_eq!(rt; place([257, 8, 32, 32, 64]), Some(1));
        assert_eq!(rt; place([1, 0, 0, 1, 1]), Some(2));
        assert_eq!(rt; place([256, 9, 32, 32, 64]), Some(2));
        assert_eq!(rt; place([256, 8, 33, 32, 64]), Some(3));
        assert_eq!(rt; place([256, 8, 32, 33, 64]), Some(4));
        assert_eq!(rt; place([1, 1, 0, 0, 1]), Some(4));
        assert_eq!(rt; place([1, 1, 0, 1, 0]), Some(5));
        assert_eq!(rt; place([256, 8, 32, 32, 65]), Some(5));
    }

    #[test]
    fn the_first_number_outside_counts(rt: HostRuntime) {
        assert_eq!(rt; place([0, 0, 33, 33, 0]), Some(1));
        assert_eq!(rt; place([1, 0, 33, 33, 0]), Some(2));
        assert_eq!(rt; place([1, 1, 33, 33, 0]), Some(3));
        assert_eq!(rt; place([1, 1, 32, 33, 0]), Some(4));
        assert_eq!(rt; place([1, 1, 0, 0, 0]), Some(4));
        assert_eq!(rt; place([65535, 65535, 65535, 65535, 65535]), Some(1));
    }

    #[test]
    fn the_fault_is_named(rt: HostRuntime) {
        let fault = Fault::ShapeLimit(Limit::NoticeBits);
        assert_eq!(rt; fault.number(), 1);
        assert_eq!(rt; fault.place(), 4);
        assert_eq!(rt; fault.layer(), Layer::Shape);
        assert_eq!(rt; shape([4, 3, 0, 0, 1]).err(), Some(fault));
    }
}
