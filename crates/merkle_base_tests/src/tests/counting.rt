use merkle_base::family::Bagging;
use merkle_fixtures::counting::Counting;
use merkle_fixtures::flat;
use merkle_hasher::nodes::node_digests;
use std::cell::Cell;

#[test]
fn pairs_and_single_nodes(rt: HostRuntime) {
    for n in 0..10u8 {
        let (pairs, singles, leaves) = (Cell::new(0), Cell::new(0), Cell::new(0));
        let hasher = Counting {
            bagging: Bagging::ForwardFold,
            pairs: &pairs,
            singles: &singles,
            leaves: &leaves,
            positions: &[],
        };
        let nodes = super::nodes::some_nodes(&rt, &hasher, n);
        let mut digests = Vec::new(rt.alloc());
        assert!(rt; node_digests::<flat::Family, _>(&hasher, &nodes, &mut digests).is_ok());
        assert_eq!(rt; pairs.get(), u64::from(n / 2), "{n} nodes");
        assert_eq!(rt; singles.get(), u64::from(n % 2), "{n} nodes");
    }
}
