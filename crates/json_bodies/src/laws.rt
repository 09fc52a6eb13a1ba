//! What the definitions of bodies come to.
ghost use Rattle.json_bodies.specs.Body.{cancel_in, create_in, instantiate_in};
ghost use Rattle.json_bodies.specs.Machines.{MachinesAreReadBack};
ghost use Rattle.json_bodies.specs.Operations.{heal_in, operate_in, scale_in, scale_to_level_in, terminate_in};
ghost use Rattle.json_bodies.specs.Tables.{RefusesFirstFault, cancel_table, create_table, heal_table};
ghost use Rattle.json_bodies.specs.Tables.{instantiate_table, operate_table, scale_table, scale_to_level_table};
ghost use Rattle.json_bodies.specs.Subscribing.{subscription_in};
ghost use Rattle.json_bodies.specs.Tables.{subscription_table, terminate_table};

/// A JSON object is refused as the body of a request exactly for what is wrong first, in the order of the body's table:
/// a member that is missing, a value that has another form or, inside an object or a list of objects, what is wrong
/// first with it or with the first of them that has a fault.
///
/// Source: own rule over SOL 003 5.5.2.3 to 5.5.2.6 (CreateVnfRequest to ScaleVnfToLevelRequest), 5.5.2.8 to 5.5.2.10
/// (TerminateVnfRequest to OperateVnfRequest), 5.5.2.14, 5.5.2.15 (CancelMode, LccnSubscriptionRequest).
pub fn the_first_failing_member_is_told()
    ensures create { RefusesFirstFault create_in create_table }
    ensures instantiate { RefusesFirstFault instantiate_in instantiate_table }
    ensures scale { RefusesFirstFault scale_in scale_table }
    ensures scale_to_level { RefusesFirstFault scale_to_level_in scale_to_level_table }
    ensures heal { RefusesFirstFault heal_in heal_table }
    ensures operate { RefusesFirstFault operate_in operate_table }
    ensures terminate { RefusesFirstFault terminate_in terminate_table }
    ensures cancel { RefusesFirstFault cancel_in cancel_table }
    ensures subscription { RefusesFirstFault subscription_in subscription_table }
{}

/// The identifier that a view shows of a machine is read as that machine, so that a request to heal it names it.
///
/// Source: own rule over SOL 003 5.5.2.9 (HealVnfRequest) and SOL 002, `vnfcInstanceId`.
pub fn machines_are_read_back()
    ensures { MachinesAreReadBack }
{}
