use sk_base::Name;

/// What an offered merge is answered.
#[derive(Clone, Copy, Debug, PartialEq, Eq)]
pub enum Answer {
    /// The merge is done; the name is that of the new cluster.
    Taken(Name),
    /// A cluster that the merge names isn't live; the name is the first such one, in falling order.
    Stale(Name),
    /// All the clusters live, and the rule of the merge doesn't hold.
    Idle,
}
