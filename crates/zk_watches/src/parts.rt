//! A run of a list, and the weight of its paths.
ghost use Rattle.std.specs.Prelude.{◌≡◌, ◌+◌, ◌<◌, ◌≤◌, [], map, length, take, drop, slice_index_or};
ghost use Rattle.zk_limits.specs.declared.limits.TheConstants.{LONGEST_PATH};

/// The texts from `start` to before `end`, as far as they reach.
pub(crate) fn window<'a>(texts: &'a [&'a str], start: usize, end: usize) -> &'a [&'a str]
    requires { start ≤ end }
    ensures { result.now ≡ drop start (take end texts.now) }
{
    let end = end.min(texts.len());
    let start = start.min(end);
    &texts[start..end]
}

/// What the text at a place takes in a request, with its length.
pub(crate) fn weight_in(texts: &[&str], at: usize) -> usize
    requires place { at < length texts.now }
    requires short { length (slice_index_or (map (λ text. text.now) texts.now) at []) ≤ LONGEST_PATH }
    ensures { result ≡ 4 + length (slice_index_or (map (λ text. text.now) texts.now) at []) }
{
    4 + texts[at].len()
}
