//! What is kept of each text, as a function of what was kept of it before.
ghost use Rattle.zk_cache.specs.Cache.{KeepsEachText, IsKnownByTexts};

/// What each call keeps of each text, and not only of the one that it names.
pub fn keeps_each_text()
    ensures { KeepsEachText }
{}

/// Two caches that keep the same of each text are one.
pub fn is_known_by_texts()
    ensures { IsKnownByTexts }
{}
