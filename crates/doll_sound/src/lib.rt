//! Fragments that are kept: the keys of blocks over a table, and that one key with the same versions stands for one fragment.
#![tactic(auto)]

ghost use Rattle.doll_sound.specs.Entries.{ShownIsSound, SoundIsShown, SoundStays};
ghost use Rattle.doll_sound.specs.Fragments.{SameBytes};
ghost use Rattle.doll_sound.specs.Keys.{KeysTellTemplates};
ghost use Rattle.doll_sound.specs.Names.{KeysAreKeys, Md5GivesDigests, SchemasHaveNames, SetsHavePaths, WhatWasReadHasNames};
ghost use Rattle.doll_sound.specs.Sites.{SchemasHavePlurals};

/// Keys with equal texts, of whichever sets, name one path and one digest.
pub fn keys_tell_templates()
    ensures { KeysTellTemplates }
{}

/// Two pages that ask by one key and the same versions are shown the same bytes, at whichever places of one history and for
/// whichever blocks of a clean set.
pub fn same_bytes()
    ensures { SameBytes }
{}

/// What a block shows over the table at a place of a history is sound for it, with the moment of the place as its origin.
pub fn shown_is_sound()
    ensures { ShownIsSound }
{}

/// What is sound for a history stays sound when commits follow.
pub fn sound_stays()
    ensures { SoundStays }
{}

/// What is sound is just what any page is shown that asks by its key and its versions, before its origin or behind it.
pub fn sound_is_shown()
    ensures { SoundIsShown }
{}

/// In a schema that was read a plural names one model.
pub fn schemas_have_plurals()
    ensures { SchemasHavePlurals }
{}

/// In a set that was read each template has a virtual path and a digest.
pub fn sets_have_paths()
    ensures { SetsHavePaths }
{}

/// In a schema that was read each model's plural is a name, and associations lead to models.
pub fn schemas_have_names()
    ensures { SchemasHaveNames }
{}

/// MD5 gives digests, so that a set that is read by it has them.
pub fn md5_gives_digests()
    ensures { Md5GivesDigests }
{}

/// A set and a schema that were read have what keys are made of.
pub fn what_was_read_has_names()
    ensures { WhatWasReadHasNames }
{}

/// In a set with names, what a renderer takes for the key of a block that a page reaches is its key.
pub fn keys_are_keys()
    ensures { KeysAreKeys }
{}
