//! Laws of the layout, each as the contract of a call that does nothing.

ghost use Rattle.words_layout.specs.AddressLaws.{DifferentWordsAreApart, AddressesTellTheClass, AddressesAreWithin};
ghost use Rattle.words_layout.specs.Spelling.{HomesComeBack, EntriesComeBack};
ghost use Rattle.words_layout.specs.Named.{OperationsGoByName, NamedOperationsAreWithin, FreshWordsAreZero};

/// Different words have different addresses, and each address tells its class and lies in the layout.
pub fn address_laws()
    ensures apart { DifferentWordsAreApart }
    ensures class { AddressesTellTheClass }
    ensures within { AddressesAreWithin }
{}

/// What is packed is unpacked to the same value, where it has a spelling.
pub fn spelling_laws()
    ensures homes { HomesComeBack }
    ensures entries { EntriesComeBack }
{}

/// An operation on the list of all words is the named operation on the words of a class; fresh words are all 0.
pub fn naming_laws()
    ensures by_name { OperationsGoByName }
    ensures within { NamedOperationsAreWithin }
    ensures fresh { FreshWordsAreZero }
{}
