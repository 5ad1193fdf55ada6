ghost use Rattle.symple_face.specs.CoreWork.{core_work};
ghost use Rattle.symple_face.specs.Lawful.{IsLawful};
ghost use Rattle.symple_face.specs.Restarts.{IsRestartLawful};
ghost use Rattle.work_laws.specs.Sound.{core_sound};

/// The law of the work of a core, which its clauses say. It does nothing.
pub fn core_is_lawful()
    ensures lawful { IsLawful core_work core_sound }
    ensures restarts { IsRestartLawful core_work core_sound }
{}
