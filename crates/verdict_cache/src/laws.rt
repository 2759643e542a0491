//! A law of the cache. The function does nothing; its contract is a theorem.

ghost use Rattle.verdict_cache.specs.Laws.{OneImageTells};

use images::keys_tell;

/// What a checker ends in on one image is what the key of both ends in: the same on every image of the
/// run, and with every checker, that have this key. So a caller may put what it has judged.
pub fn one_image_tells()
    ensures { OneImageTells }
{
    keys_tell();
}
