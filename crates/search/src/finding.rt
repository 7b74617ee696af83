// The search in a list of ordered items.
ghost use Rattle.search.specs.Order.{below_by, same_by, TotalOrder, FirstPlace};

// The first place whose item is the same as `item`, or none.
// What is the same is what the order of the items does not tell apart; every `Ord` is a total order.
pub fn first_place<T: Ord>(items: &[T], item: &T) -> Option<usize>
    ensures place { FirstPlace (same_by T.cmp) items.now item.now result }
    ensures order { TotalOrder (below_by T.cmp) (same_by T.cmp) }
{
    items.iter().position(|x| item.cmp(x).is_eq())
}
