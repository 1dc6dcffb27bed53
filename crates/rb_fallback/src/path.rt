ghost use Rattle.std.specs.Prelude.{◌≡◌, ◌≤◌, ◌<◌, ◌+◌, ◌-◌, ◌↔◌, IsTrue, drop, length};
ghost use Rattle.rb_tree.specs.Path.{IsPath, is_path as passes};
ghost use Rattle.rb_tree.specs.Walk.{behind};
ghost use Rattle.rb_fallback.specs.inner.PathScan.{AreFollowed, may_follow};

/// Returns true if a byte may follow another one in a path, where a slash stands before the first.
fn may_follow(before: u8, byte: u8) -> bool
    ensures { result ≡ may_follow before byte }
{
    (0x20 <= byte) & (byte <= 0x7E) & !((byte == b'/') & (before == b'/'))
}

/// Checks whether bytes are a path, one by one.
#[tactic(auto, using(crate::proofs::PathScans::path_scan))]
fn is_short_path(path: &[u8]) -> bool
    ensures { result ≡ passes path.now }
{
    let mut good = true;
    let mut before = b'/';
    for &byte in path {
        good = good & may_follow(before, byte);
        before = byte;
    }
    path.is_empty() || good & (before != b'/')
}

/// Returns true if each of N bytes from `at` on may be followed by the next one. It never ends
/// early, so all of them are tested at a time.
#[inline(always)]
fn block_ok<const N: usize>(path: &[u8], at: usize) -> bool
    requires { at + N < length path.now }
    ensures { IsTrue result ↔ AreFollowed path.now at (at + N) }
{
    let mut good = true;
    for i in 0..N {
        good = good & may_follow(path[at + i], path[at + i + 1]);
    }
    good
}

/// Returns true if each byte but the last may be followed by the next one. The last block begins
/// N bytes before the last byte, so it may overlap the one before it.
fn blocks_ok<const N: usize>(path: &[u8]) -> bool
    requires some { 1 ≤ N }
    requires block { N < length path.now }
    ensures { IsTrue result ↔ AreFollowed path.now 0 (length path.now - 1) }
{
    let last = path.len() - 1 - N;
    let mut at = 0;
    while at < last {
        if !block_ok::<N>(path, at) {
            return false;
        }
        at += N;
    }
    block_ok::<N>(path, last)
}

/// Returns true if each byte but the last may be followed by the next one.
fn are_followed(path: &[u8]) -> bool
    requires { 8 < length path.now }
    ensures { IsTrue result ↔ AreFollowed path.now 0 (length path.now - 1) }
{
    if path.len() > 16 {
        blocks_ok::<16>(path)
    } else {
        blocks_ok::<8>(path)
    }
}

/// Checks whether more than 8 bytes are a path. Both ends are tested last: clang makes more of the
/// blocks if it knows nothing of their bytes.
#[tactic(auto, using(crate::proofs::PathScans::path_followed))]
fn is_long_path(path: &[u8]) -> bool
    requires { 8 < length path.now }
    ensures { result ≡ passes path.now }
{
    let followed = are_followed(path);
    followed & may_follow(b'/', path[0]) & (path[path.len() - 1] != b'/')
}

/// Checks whether bytes are a path, like `path_ok`.
#[tactic(auto, using(rb_tree::proofs::Paths::path_test))]
pub(crate) fn is_path(path: &[u8]) -> bool
    ensures path { IsTrue result ↔ IsPath path.now }
    ensures test { result ≡ passes path.now }
{
    if path.len() > 8 {
        is_long_path(path)
    } else {
        is_short_path(path)
    }
}

/// Returns the path after its first `cut` bytes and the slash that follows them.
#[tactic(auto, using(crate::proofs::Follows::behind_more))]
pub fn rest_behind(path: &[u8], cut: usize) -> &[u8]
    ensures { result.now ≡ drop (behind cut) path.now }
{
    if cut == 0 {
        return path;
    }
    if cut >= path.len() {
        return &[];
    }
    &path[cut + 1..]
}
