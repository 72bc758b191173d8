//! Laws of journeys, and one that is worked out.
ghost use Rattle.dr_cert_trace.specs.Laws.{OneJourney, TwoNodesJourney};

/// A key that enters at a site has one journey: its rank, its hops and the nodes that keep it are
/// all settled by the plan.
pub fn a_key_has_one_journey()
    ensures { OneJourney }
{}

/// In the sample plan of two nodes an image that enters at the scanner makes one hop, in
/// presentation context 1, to the archive, which keeps it.
pub fn an_image_goes_to_the_archive()
    ensures { TwoNodesJourney }
{}
