// The first entries of a list.

// The first so many, or all where there are fewer.
pub(crate) fn first<T>(list: &[T], count: usize) -> &[T] {
    &list[..count.min(list.len())]
}
