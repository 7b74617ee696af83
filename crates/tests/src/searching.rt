// What the search and the comparisons do on short lists.
use search::{compare_bytes, first_place};
use std::cmp::Ordering;

// Of two equal items the first is found, an absent one is not, and an empty list has none.
#[test]
fn places(rt: HostRuntime) {
    let items = [4u32, 7, 2, 7];
    assert_eq!(rt; first_place(&items, &7), Some(1));
    assert_eq!(rt; first_place(&items, &5), None);
    let none: [u32; 0] = [];
    assert_eq!(rt; first_place(&none, &7), None);
}

// The first byte that differs decides, and a front comes first.
#[test]
fn byte_strings(rt: HostRuntime) {
    let rows: [(&[u8], &[u8], Ordering); 4] = [
        (b"ab", b"b", Ordering::Less),
        (b"ab", b"a", Ordering::Greater),
        (b"", b"a", Ordering::Less),
        (b"ab", b"ab", Ordering::Equal),
    ];
    for (a, b, order) in &rows {
        assert_eq!(rt; compare_bytes(a, b), *order);
    }
}
