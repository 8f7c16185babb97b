//! Laws of reading domains.

ghost use Rattle.std.specs.Prelude.{List};
ghost use Rattle.pddl_names.specs.declared.offences.Offence.{Offence};
ghost use Rattle.pddl_domain.specs.Accepted.{
  DomainsHaveNoOffence,
  DomainsAreNoLonger,
  DomainsDeclareOnce,
  VariablesAreBoundOnce,
  CallsAreWellMade,
};
ghost use Rattle.pddl_domain.specs.Laws.{
  FirstPhaseCounts,
  TextsAreOneDomain,
  TextsHaveOneFault,
  DomainsHaveNoFault,
};

/// A text is one domain at most, and is refused for one thing at most, and not both.
pub fn a_text_is_one_domain()
    ensures tree { TextsAreOneDomain }
    ensures fault { TextsHaveOneFault }
    ensures apart { DomainsHaveNoFault }
{}

/// What a file is refused for behind its shape is an offence of the first phase that has any, and no offence of that phase
/// stands before it; and nothing is found exactly where no phase has an offence.
pub fn first_phase_counts()
    ensures { (phases : List (List Offence)) (o : Offence) → FirstPhaseCounts phases o }
{}

/// In a domain that is accepted no phase finds an offence, and its lists are no longer than the text has bytes. Where no
/// name offends, nothing is declared twice, so that the first declaration of each name is its only one, and a list of
/// variables has none twice. Where no type offends either, predicates and functions are declared, with as many parameters
/// as they are given terms, and each term is known and of a type that fits.
pub fn accepted_domains_keep_to()
    ensures offences { DomainsHaveNoOffence }
    ensures lengths { DomainsAreNoLonger }
    ensures once { DomainsDeclareOnce }
    ensures variables { VariablesAreBoundOnce }
    ensures calls { CallsAreWellMade }
{}
