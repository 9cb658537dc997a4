//! Files by templates: lines whose places are not known yet. A file printed of templates that are well spelled is a file of the
//! grammar, and its trees are those of the templates, for proofs. No code.
#![tactic(auto)]
