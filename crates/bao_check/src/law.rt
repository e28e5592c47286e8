ghost use Rattle.bao_check.specs.Laws.{AcceptedBinds, BareAccepted, CertificateBinds, NodesMakeSlice, ParentBinds, WrittenAccepted};

/// Lemma: for every certificate under a root (bytes as a certain chunk, and the parents above it, 64 bytes and
/// a side each) and every blob with that root, the bytes are the blob's chunk of that index, and the blob ends
/// with them if the path goes right at each parent; or a collision is exhibited, one input from the blob and
/// one from the certificate. No effect at run time.
pub fn certificate_binds()
    ensures { CertificateBinds }
{}

/// Lemma: for every encoding accepted as a slice under a root, and every blob with that root, each chunk of the
/// encoding is the blob's chunk of that index, and if it is the last of the claimed length, that length is the
/// blob's; or a collision is exhibited, one input from the blob and one from the encoding. No effect at run
/// time.
pub fn accepted_binds()
    ensures { AcceptedBinds }
{}

/// Lemma: for a blob of less than 2^64 bytes, each slice, the combined and the outboard encoding are accepted
/// under its hash. No effect at run time.
pub fn written_accepted()
    ensures { WrittenAccepted }
{}

/// Lemma: if an accepted outline is of less than 2^64 bytes, a range of chunks is accepted beside it exactly if
/// the slice that they make together is accepted. No effect at run time.
pub fn bare_accepted()
    ensures { BareAccepted }
{}

/// Lemma: for every encoding accepted as a slice under a root, and every blob with that root and the claimed
/// length, each parent of the encoding is the blob's parent at that boundary; or a collision is exhibited, one
/// input from the blob and one from the encoding. No effect at run time.
pub fn parent_binds()
    ensures { ParentBinds }
{}

/// Lemma: the length of a blob, followed by the blob's bytes for each node of a slice in order, is the slice's
/// encoding. No effect at run time.
#[tactic(auto, using(crate::proofs::BlobNodes::nodes_make_slice))]
pub fn nodes_make_slice()
    ensures { NodesMakeSlice }
{}
