ghost use Rattle.bao_windows.specs.Laws.{OutlineBinds};

/// Lemma: for every encoding accepted as an outboard encoding under a root, and every blob with that root and
/// the length that the encoding claims, the encoding is the blob's own; or a collision is exhibited, one input
/// from the blob and one from the encoding. So what [`write_windows`](crate::write_windows) promises beside the
/// blob's own outboard encoding holds beside each accepted one that claims the blob's length, or there is that
/// collision. No effect at run time.
pub fn outline_binds()
    ensures { OutlineBinds }
{}
