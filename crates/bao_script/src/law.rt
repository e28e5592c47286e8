ghost use Rattle.bao_script.specs.Binding.{ScriptsBind};

/// Lemma: for every blob with the hash `root`, each chunk that a script's run leaves held is the blob's chunk of that
/// index, and a recorded length is the blob's; or a collision is exhibited, two different inputs with the same chaining
/// value, one from the blob and one from a slice that a line names. No effect at run time.
pub fn scripts_bind()
    ensures { ScriptsBind }
{}
