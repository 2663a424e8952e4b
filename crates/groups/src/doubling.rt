// A list that doubles: what it begins with once more behind, each item as a step makes it.
ghost use Rattle.std.specs.Prelude.{ℕ, ◌+◌, ◌<◌, ◌≤◌, length, get_or};
ghost use Rattle.groups.specs.Doubling.{Doubled};

// The first m items once more behind them, each by a step.
pub(crate) fn double<T: Copy, F: Fn(T) -> T>(items: &mut [T], m: usize, step: F)
    requires room { m + m ≤ length items.old }
    requires callable { (u : ℕ) (d : T) → u < m → F.pre step (get_or items.old u d) }
    ensures { Doubled items.old items.new m (F.post step) }
{
    for u in 0..m {
        items[m + u] = step(items[u]);
    }
}
