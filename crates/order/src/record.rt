// A key with its value.
#[derive(Clone, Copy, Debug, PartialEq, Eq)]
pub struct Record<K, V> {
    pub key: K,
    pub value: V,
}
